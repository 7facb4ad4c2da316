// What a C host has of the device: each call in specs/, and refusals as the header numbers them.
#![tactic(auto)]

pub const DONE: u32 = 0;

pub const BAD_ARGUMENT: u32 = 2;

pub const BAD_IMAGE: u32 = 3;
