mod journals;
mod records;
