// What reading and spelling owe each other. The readers and the writers answer by the definitions
// of these laws, so they hold of them.
ghost use Rattle.cm_frame.specs.Grammar.{header_bytes, IsConfig, item_bytes, IsItem, request_bytes, IsRequest, reply_bytes, IsReply};
ghost use Rattle.cm_frame.specs.Reading.{read_header, read_item, read_request, read_reply};
ghost use Rattle.cm_frame.specs.Laws.{IsReadBack, IsSpelledSo, NoneBegins, StaysJudged};

/// What is spelled is read, whatever follows it.
pub fn read_back_law()
    ensures headers { IsReadBack IsConfig header_bytes read_header }
    ensures items { IsReadBack IsItem item_bytes read_item }
    ensures requests { IsReadBack IsRequest request_bytes read_request }
    ensures replies { IsReadBack IsReply reply_bytes read_reply }
{}

/// What is read was spelled so, each byte of it.
pub fn one_spelling_law()
    ensures headers { IsSpelledSo IsConfig header_bytes read_header }
    ensures items { IsSpelledSo IsItem item_bytes read_item }
    ensures requests { IsSpelledSo IsRequest request_bytes read_request }
    ensures replies { IsSpelledSo IsReply reply_bytes read_reply }
{}

/// No spelling begins another, and no two values have one spelling.
pub fn none_begins_law()
    ensures headers { NoneBegins IsConfig header_bytes }
    ensures items { NoneBegins IsItem item_bytes }
    ensures requests { NoneBegins IsRequest request_bytes }
    ensures replies { NoneBegins IsReply reply_bytes }
{}

/// What was judged stays judged so, whatever comes behind.
pub fn stays_judged_law()
    ensures headers { StaysJudged read_header }
    ensures items { StaysJudged read_item }
    ensures requests { StaysJudged read_request }
    ensures replies { StaysJudged read_reply }
{}
