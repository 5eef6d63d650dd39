// Commands of every kind, driven by outcomes that are made up.
mod copies;
mod driving;
mod outcomes;
mod plain;
mod reservations;
mod script;
mod seen;
mod tokens;
