/// The bytes of the files that the words of a command name; a file that they do not name has none.
#[derive(Drop)]
pub(crate) struct Texts {
    pub program: Vec<u8>,
    pub reports: Vec<u8>,
    pub input: Vec<u8>,
    pub schedule: Vec<u8>,
}
