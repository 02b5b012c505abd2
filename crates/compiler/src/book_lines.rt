// The lines of a book, by their kind, in arrays of words.

#[derive(Drop)]
pub struct BookLines<'a> {
    pub inherited: &'a mut [u32],
    pub synthesized: &'a mut [u32],
    pub rules: &'a mut [u32],
    pub definitions: &'a mut [u32],
    pub kernels: &'a mut [u32],
    pub goes: &'a mut [u32],
}
