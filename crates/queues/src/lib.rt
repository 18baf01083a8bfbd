// For each of a window's two parts a queue of those of its lines that may still be the best start.
#![tactic(auto)]

pub mod parts; // parts.rt: the queues of a window's two parts, moved on
pub mod queue; // queue.rt: the candidates of a part, from the least cost on
