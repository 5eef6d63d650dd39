// Copies over a port that says what it was told to say, over a connection, over a source and a sink, and over units.
mod made;
mod over_units;
mod replies;
mod spoken;
mod streams;
