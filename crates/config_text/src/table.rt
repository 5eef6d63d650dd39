ghost use Rattle.std.specs.Prelude.{◌≡◌, option_map};
ghost use Rattle.config_text.specs.Meaning.{is_key, is_unit_key, has_only};
ghost use Rattle.toml.specs.Data.{get_member};
ghost use Rattle.toml.specs.View.{view, table_view};

use toml::{Table, Value};

/// What stands at a key.
pub(crate) fn member<'a>(table: &'a Table, key: &str) -> Option<&'a Value>
    ensures { option_map (λ value. view value.now) result ≡ get_member key.now (table_view table.now) }
{
    table.get(key)
}

fn is_key(name: &str) -> bool
    ensures { result ≡ is_key name.now }
{
    name == "secret" || name == "secret_file" || name == "unit"
}

fn is_unit_key(name: &str) -> bool
    ensures { result ≡ is_unit_key name.now }
{
    name == "blocks"
        || name == "block_length"
        || name == "entries"
        || name == "quota"
        || name == "payload"
        || name == "group"
}

/// The table of a text has its keys alone.
pub(crate) fn has_only_keys(text: &Table) -> bool
    ensures { result ≡ has_only is_key (table_view text.now) }
{
    'names: for (name, _value) in text.iter() {
        if !is_key(name.as_str()) {
            return false;
        }
    }
    true
}

/// The table of a unit has its keys alone.
pub(crate) fn has_only_unit_keys(unit: &Table) -> bool
    ensures { result ≡ has_only is_unit_key (table_view unit.now) }
{
    'names: for (name, _value) in unit.iter() {
        if !is_unit_key(name.as_str()) {
            return false;
        }
    }
    true
}
