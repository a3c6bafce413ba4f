// What a top call responds with.
use stx_base::Report;

/// What a top call responds with, made whole before anything is written.
#[derive(Debug, Drop)]
pub enum Response {
    /// The job was done: what is reported, if anything, and the text.
    Done(Option<Report>, Vec<u8>),
    /// It was refused: the refusal's text.
    Refused(Vec<u8>),
}
