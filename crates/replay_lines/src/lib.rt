// Lines of requests and answers: the words of a line, the bytes of an answer on their way to standard output, a context, effects and notes in
// words, and the answer that needs no statement, a text's tokens.
#![tactic(auto)]

pub mod contexts;
pub mod effects;
pub mod lexed;
pub mod output;
pub mod words;
