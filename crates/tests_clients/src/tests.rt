// Rows that were worked out by hand.
mod clients;
mod guarded;
mod made;
mod parts;
mod shown;
mod trees;
