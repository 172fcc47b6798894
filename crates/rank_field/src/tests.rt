// What ranks find together, beside other ways to find it.
mod fields;
mod machines;
