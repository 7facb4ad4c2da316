// The rules of one pin, and of all pins at once: each word is a pin set, of as many pins as one likes up to 64.
#![tactic(auto)]

// What is stored of the pins.
#[derive(Clone, Copy)]
pub struct Sets {
    pub level: u64,
    pub reference: u64,
    pub held: u64,
    pub edge: u64,
}

// The registers that events depend on.
#[derive(Clone, Copy)]
pub struct Sources {
    pub configuration: u64,
    pub mask: u64,
    pub latch: u64,
    pub rising: u64,
    pub falling: u64,
}
