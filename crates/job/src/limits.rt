// The two limits that a job works under, one for each make. Copied whatever the limits are, and never shown or compared.
#[derive_where(Clone, Copy)]
pub struct Limits<'a, C, S> {
    pub classes: &'a C,
    pub speeds: &'a S,
}
