// Packed cases, whose form oracle/ has, and the text of an answer: what the replay programs share.
#![tactic(auto)]

pub mod line; // line.rt: answers' text, put at a place of a lent buffer
pub mod record; // record.rt: the records of an input, and their fields
pub mod stdio; // stdio.rt: records in, lines out
