// What reading and spelling a job owe each other.
ghost use Rattle.cm_frame.specs.Laws.{IsReadBack, IsSpelledSo, StaysJudged};
ghost use Rattle.copy_plan.specs.Spelling.{job_bytes, FitsJob};
ghost use Rattle.copy_plan.specs.Reading.{read_job};

/// What is spelled is read, whatever follows it.
pub fn read_back_law()
    ensures { IsReadBack FitsJob job_bytes read_job }
{}

/// What is read was spelled so, each byte of it.
pub fn one_spelling_law()
    ensures { IsSpelledSo FitsJob job_bytes read_job }
{}

/// What was judged stays judged so, whatever comes behind.
pub fn stays_judged_law()
    ensures { StaysJudged read_job }
{}
