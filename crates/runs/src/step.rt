// A step: what is to be done, and where.
#[derive(Clone, Copy)]
pub struct Step<'s> {
    pub rule: u8,
    pub place: &'s [u8],
    pub argument: u8,
    pub inner: &'s [u8],
}
