// The rows of document 000, the charger-side pages, that 01 has: extended identifiers, byte 0 lowest. In the order of their identifiers and, within a message,
// of their starts. For `page_rows`, which has the whole table. It takes any index.
#![tactic(auto)]

ghost use Rattle.std.specs.Prelude.{◌≡◌, get_or};
ghost use Rattle.page_table.specs.Charger.{charger_rows};
ghost use Rattle.page_table.specs.Layout.{row_of};
ghost use Rattle.page_charger.specs.Past.{past};

// The crates among these are passed on to those above, which name them through this one.
pub use page_table;
use page_table::Line;

pub const END: usize = 30;

// Power_Modules_Status
pub const PRESENT_VOLTAGE: Line = Line(0, 0, 16, 0, false, 0);

pub const PRESENT_CURRENT: Line = Line(0, 16, 16, 16, true, 0);

pub const POWER_MODULES_TEMPERATURE: Line = Line(0, 32, 8, 32, false, 0);

pub const ENCLOSURE_TEMPERATURE: Line = Line(0, 40, 8, 40, false, 0);

pub const SYSTEM_ENABLE: Line = Line(0, 48, 8, 48, false, 0b11);

pub const INSULATION_RESISTANCE: Line = Line(0, 56, 8, 56, false, 0);

// DC_Power_Parameters
pub const MAXIMUM_VOLTAGE: Line = Line(1, 0, 16, 0, false, 0);

pub const MAXIMUM_CHARGE_CURRENT: Line = Line(1, 16, 16, 16, false, 0);

pub const MAXIMUM_DISCHARGE_CURRENT: Line = Line(1, 32, 16, 32, false, 0);

pub const RANGE_TARGET_CURRENT: Line = Line(1, 48, 16, 48, true, 0);

// Advantics_Controller_Status
pub const CONTROLLER_STATE: Line = Line(2, 0, 8, 0, false, 0b11111111111111);

// New_Charge_Session
pub const COMMUNICATION_PROTOCOL: Line = Line(3, 0, 8, 0, false, 0b11111111);

pub const PLUG_AND_PINS: Line = Line(3, 8, 8, 8, false, 0b11111);

// Charge_Status_Change
pub const VEHICLE_READY_FOR_CHARGING: Line = Line(4, 0, 8, 0, false, 0b11);

// DC_Power_Control
pub const TARGET_VOLTAGE: Line = Line(5, 0, 16, 0, false, 0);

pub const CURRENT_RANGE_MAX: Line = Line(5, 16, 16, 16, true, 0);

pub const CURRENT_RANGE_MIN: Line = Line(5, 32, 16, 32, true, 0);

pub const POWER_FUNCTION: Line = Line(5, 48, 4, 48, false, 0b100010111);

pub const RESERVED: Line = Line(5, 52, 1, 52, false, 0);

pub const SETPOINTS_MODE: Line = Line(5, 53, 1, 53, false, 0b11);

pub const OUTPUT_CONTACTORS: Line = Line(5, 54, 1, 54, false, 0b11);

pub const LOWER_OUTPUT_VOLTAGE: Line = Line(5, 55, 1, 55, false, 0b11);

// Charge_Session_Finished
pub const FINISHED_STATE: Line = Line(6, 0, 8, 0, false, 0b11);

// Emergency_Stop
pub const STOP_ORIGIN: Line = Line(7, 0, 8, 0, false, 0b1010);

// EV_ID_CCS_Part2_DIN
pub const BYTE0: Line = Line(8, 0, 8, 0, false, 0);

pub const BYTE1: Line = Line(8, 8, 8, 8, false, 0);

pub const BYTE2: Line = Line(8, 16, 8, 16, false, 0);

pub const BYTE3: Line = Line(8, 24, 8, 24, false, 0);

pub const BYTE4: Line = Line(8, 32, 8, 32, false, 0);

pub const BYTE5: Line = Line(8, 40, 8, 40, false, 0);

// 01: "layouts are one constant table". The rows in their order.
const LINES: [Line; 30] = [
    // Power_Modules_Status
    PRESENT_VOLTAGE,
    PRESENT_CURRENT,
    POWER_MODULES_TEMPERATURE,
    ENCLOSURE_TEMPERATURE,
    SYSTEM_ENABLE,
    INSULATION_RESISTANCE,
    // DC_Power_Parameters
    MAXIMUM_VOLTAGE,
    MAXIMUM_CHARGE_CURRENT,
    MAXIMUM_DISCHARGE_CURRENT,
    RANGE_TARGET_CURRENT,
    // Advantics_Controller_Status
    CONTROLLER_STATE,
    // New_Charge_Session
    COMMUNICATION_PROTOCOL,
    PLUG_AND_PINS,
    // Charge_Status_Change
    VEHICLE_READY_FOR_CHARGING,
    // DC_Power_Control
    TARGET_VOLTAGE,
    CURRENT_RANGE_MAX,
    CURRENT_RANGE_MIN,
    POWER_FUNCTION,
    RESERVED,
    SETPOINTS_MODE,
    OUTPUT_CONTACTORS,
    LOWER_OUTPUT_VOLTAGE,
    // Charge_Session_Finished
    FINISHED_STATE,
    // Emergency_Stop
    STOP_ORIGIN,
    // EV_ID_CCS_Part2_DIN
    BYTE0,
    BYTE1,
    BYTE2,
    BYTE3,
    BYTE4,
    BYTE5,
];

// In each arm the index is known beforehand, and the compiler makes look-up tables of the array; of one that is not known it builds the whole array
// on the stack at each call.
// Kept (6): by an index that is not known reading took 128 times what plain C takes (docs/DECISIONS.md, "Shape"); and the array is the form that 01 asks for.
// Kept (4): no conversion, but the row at a place of the table (`charger_rows`), for every place.
pub fn line_at(i: usize) -> Line
    ensures { row_of result ≡ get_or charger_rows i past }
{
    let lines = LINES;
    match i {
        0 => lines[0],
        1 => lines[1],
        2 => lines[2],
        3 => lines[3],
        4 => lines[4],
        5 => lines[5],
        6 => lines[6],
        7 => lines[7],
        8 => lines[8],
        9 => lines[9],
        10 => lines[10],
        11 => lines[11],
        12 => lines[12],
        13 => lines[13],
        14 => lines[14],
        15 => lines[15],
        16 => lines[16],
        17 => lines[17],
        18 => lines[18],
        19 => lines[19],
        20 => lines[20],
        21 => lines[21],
        22 => lines[22],
        23 => lines[23],
        24 => lines[24],
        25 => lines[25],
        26 => lines[26],
        27 => lines[27],
        28 => lines[28],
        29 => lines[29],
        _ => Line(0, 0, 0, 0, false, 0),
    }
}
