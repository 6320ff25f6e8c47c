// A script's clients on threads: each is served its commands beside the others.
mod answers;
mod appends;
mod beside;
mod dealing;
mod ending;
mod gets;
mod moves;
mod object_answers;
mod opened;
mod parts;
mod puts;
mod reads;
mod replies;
mod running;
mod scans;
mod served;
mod syncs;
mod trees;

pub use running::run_beside;
