// Rows that were worked out by hand.
mod boards;
mod columns;
mod forms;
mod journals;
mod looks;
mod made;
mod nodes;
mod objects;
mod parts;
mod plays;
mod queues;
mod regions;
mod rings;
mod streams;
mod trees;
mod worlds;
