// The kinds of the newer interface, numbered in the table's order: document 000's and the safety controller's; from 12 to 29 stand the kinds of document 001.
// Kept (1): numbers and no enum. `judge_of` answers a kind as a number, the laws of each refusal (`gives_4`, docs/PROMISES.md) go over every number as a kind,
// and the C interface hands kinds out and takes any number for one.

pub const STATUS: usize = 0;

pub const PARAMETERS: usize = 1;

pub const CONTROLLER: usize = 2;

pub const SESSION: usize = 3;

pub const CHANGE: usize = 4;

pub const CONTROL: usize = 5;

pub const FINISHED: usize = 6;

pub const STOP: usize = 7;

pub const ID: usize = 8;

pub const SAFETY_CONTROL: usize = 9;

pub const SAFETY_STATE: usize = 10;

pub const PROBES: usize = 11;

pub const SEQUENCE: usize = 30;

pub const OUTPUTS: usize = 31;

pub const BATTERY: usize = 32;

pub const VOLTAGES: usize = 33;

pub const CHARGE_LIMITS: usize = 34;

pub const DISCHARGE_LIMITS: usize = 35;

pub const ENERGY: usize = 36;

pub const CUI: usize = 37;

pub const SECC: usize = 38;

pub const SPCC: usize = 39;

pub const CCS: usize = 40;

pub const MCS: usize = 41;

pub const OCPP: usize = 42;
