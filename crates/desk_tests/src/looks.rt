/// How often a call that waits for others looks whether they have begun.
pub const LOOKS: u32 = 50_000_000;
