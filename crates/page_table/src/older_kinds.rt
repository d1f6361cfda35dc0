// The kinds of document 001, numbered in the table's order.
// Kept (1): numbers, as newer_kinds.rt says.

pub const STATUS: usize = 12;

pub const LIMITS: usize = 13;

pub const SEQUENCE: usize = 14;

pub const OUTPUTS: usize = 15;

pub const SESSION: usize = 16;

pub const INSULATION: usize = 17;

pub const PRECHARGE: usize = 18;

pub const CHANGE: usize = 19;

pub const CHARGING: usize = 20;

pub const STOP: usize = 21;

pub const FINISHED: usize = 22;

pub const CONTROLLER: usize = 23;

pub const CUI: usize = 24;

pub const SECC: usize = 25;

pub const ID: usize = 26;

pub const SPCC: usize = 27;

pub const CCS: usize = 28;

pub const MCS: usize = 29;
