// The numbers of reports, by name: `specs/Reports.antt` has the same for the definitions.

pub const FRAME: u8 = 1;

pub const DAMAGE: u8 = 2;

pub const CONNECTED: u8 = 3;

pub const FAILED: u8 = 4;

pub const OUTSIDE: u8 = 5;

pub const NO_REPLY: u8 = 6;

pub const DOWN: u8 = 7;

pub const NOT_IDLE: u8 = 8;
