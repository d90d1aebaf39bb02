/// What a build may choose of the bounds of members and elements. Where `narrow` is false the other flags have no effect.
#[derive(Clone, Copy, Debug, PartialEq, Eq)]
pub struct Flags {
    /// The address of a member has bounds narrowed to the member.
    pub narrow: bool,
    /// The first member of a struct has bounds of its own too.
    pub first_own: bool,
    /// The address of an array that is an element of an array has bounds narrowed to that element.
    pub innermost: bool,
    /// An array that is the last member of its struct keeps the struct's bounds.
    pub flexible: bool,
}
