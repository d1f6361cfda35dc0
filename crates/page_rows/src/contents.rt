// The messages, by their kinds: what every row of a message says of it. A search by identifier goes through the arrays, and a row names its own by its kind.
ghost use Rattle.std.specs.Prelude.{◌≡◌, get_or};
ghost use Rattle.page_charger.specs.page_table.specs.Messages.{messages, no_message};

use page_charger::page_table::Message;

// Document 000, the base messages: extended identifiers, byte 0 lowest.
const POWER_MODULES_STATUS: Message = Message(0x63000, true, 8, false, 0);

const DC_POWER_PARAMETERS: Message = Message(0x63001, true, 8, false, 6);

const ADVANTICS_CONTROLLER_STATUS: Message = Message(0x6b000, true, 1, false, 10);

const NEW_CHARGE_SESSION: Message = Message(0x6b001, true, 2, false, 11);

const CHARGE_STATUS_CHANGE: Message = Message(0x6b002, true, 1, false, 13);

const DC_POWER_CONTROL: Message = Message(0x6b003, true, 7, false, 14);

const CHARGE_SESSION_FINISHED: Message = Message(0x6b004, true, 1, false, 22);

const EMERGENCY_STOP: Message = Message(0x6b005, true, 1, false, 23);

const EV_ID_CCS_PART2_DIN: Message = Message(0x6b105, true, 6, false, 24);

// Document 004: standard identifiers, byte 0 highest.
const CHARGE_CONTROL1: Message = Message(6, false, 8, true, 30);

const CHARGE_STATE1: Message = Message(7, false, 8, true, 34);

const PT1000_STATE: Message = Message(8, false, 8, true, 49);

// Document 001: extended identifiers, byte 0 lowest.
const OLD_POWER_MODULES_STATUS: Message = Message(0x60010, true, 8, false, 61);

const OLD_POWER_MODULES_LIMITS: Message = Message(0x60011, true, 8, false, 67);

const OLD_SEQUENCE_CONTROL: Message = Message(0x60012, true, 3, false, 70);

const OLD_ADM_CS_SECC_OUTPUTS: Message = Message(0x60013, true, 8, false, 76);

const OLD_NEW_CHARGE_SESSION: Message = Message(0x68001, true, 8, false, 81);

const OLD_INSULATION_TEST: Message = Message(0x68002, true, 2, false, 87);

const OLD_PRECHARGE: Message = Message(0x68003, true, 4, false, 88);

const OLD_CHARGE_STATUS_CHANGE: Message = Message(0x68004, true, 1, false, 90);

const OLD_CHARGING_LOOP: Message = Message(0x68005, true, 5, false, 91);

const OLD_EMERGENCY_STOP: Message = Message(0x68006, true, 1, false, 94);

const OLD_CHARGE_SESSION_FINISHED: Message = Message(0x68007, true, 1, false, 95);

const OLD_ADVANTICS_CONTROLLER_STATUS: Message = Message(0x68009, true, 1, false, 96);

const OLD_ADM_CO_CUI1_INPUTS: Message = Message(0x6800a, true, 8, false, 97);

const OLD_ADM_CS_SECC_INPUTS: Message = Message(0x6800b, true, 8, false, 108);

const OLD_EV_ID_CCS_PART2_DIN: Message = Message(0x6800c, true, 6, false, 116);

const OLD_ADM_CS_SPCC_INPUTS: Message = Message(0x6800d, true, 8, false, 122);

const OLD_CCS_EXTRA_INFORMATION: Message = Message(0x6800e, true, 8, false, 133);

const OLD_MCS_EXTRA_INFORMATION: Message = Message(0x6800f, true, 8, false, 136);

// Document 000, the rest: extended identifiers, byte 0 lowest.
const SEQUENCE_CONTROL: Message = Message(0x63002, true, 3, false, 139);

const ADM_CS_SECC_OUTPUTS: Message = Message(0x63201, true, 8, false, 145);

const EV_INFORMATION_BATTERY: Message = Message(0x6b100, true, 6, false, 150);

const EV_INFORMATION_VOLTAGES: Message = Message(0x6b101, true, 6, false, 155);

const EV_INFORMATION_CHARGE_LIMITS: Message = Message(0x6b102, true, 8, false, 158);

const EV_INFORMATION_DISCHARGE_LIMITS: Message = Message(0x6b103, true, 8, false, 162);

const EV_INFORMATION_ENERGY: Message = Message(0x6b104, true, 6, false, 166);

const ADM_CO_CUI1_INPUTS: Message = Message(0x6b200, true, 8, false, 169);

const ADM_CS_SECC_INPUTS: Message = Message(0x6b201, true, 8, false, 180);

const ADM_CS_SPCC_INPUTS: Message = Message(0x6b202, true, 8, false, 188);

const CCS_EXTRA_INFORMATION: Message = Message(0x6b203, true, 8, false, 199);

const MCS_EXTRA_INFORMATION: Message = Message(0x6b204, true, 8, false, 202);

const OCPP_CONTROL: Message = Message(0x6b300, true, 2, false, 205);

pub const MESSAGES: [Message; 12] = [
    POWER_MODULES_STATUS,
    DC_POWER_PARAMETERS,
    ADVANTICS_CONTROLLER_STATUS,
    NEW_CHARGE_SESSION,
    CHARGE_STATUS_CHANGE,
    DC_POWER_CONTROL,
    CHARGE_SESSION_FINISHED,
    EMERGENCY_STOP,
    EV_ID_CCS_PART2_DIN,
    CHARGE_CONTROL1,
    CHARGE_STATE1,
    PT1000_STATE,
];

pub const OLDER: [Message; 18] = [
    OLD_POWER_MODULES_STATUS,
    OLD_POWER_MODULES_LIMITS,
    OLD_SEQUENCE_CONTROL,
    OLD_ADM_CS_SECC_OUTPUTS,
    OLD_NEW_CHARGE_SESSION,
    OLD_INSULATION_TEST,
    OLD_PRECHARGE,
    OLD_CHARGE_STATUS_CHANGE,
    OLD_CHARGING_LOOP,
    OLD_EMERGENCY_STOP,
    OLD_CHARGE_SESSION_FINISHED,
    OLD_ADVANTICS_CONTROLLER_STATUS,
    OLD_ADM_CO_CUI1_INPUTS,
    OLD_ADM_CS_SECC_INPUTS,
    OLD_EV_ID_CCS_PART2_DIN,
    OLD_ADM_CS_SPCC_INPUTS,
    OLD_CCS_EXTRA_INFORMATION,
    OLD_MCS_EXTRA_INFORMATION,
];

pub const REST: [Message; 13] = [
    SEQUENCE_CONTROL,
    ADM_CS_SECC_OUTPUTS,
    EV_INFORMATION_BATTERY,
    EV_INFORMATION_VOLTAGES,
    EV_INFORMATION_CHARGE_LIMITS,
    EV_INFORMATION_DISCHARGE_LIMITS,
    EV_INFORMATION_ENERGY,
    ADM_CO_CUI1_INPUTS,
    ADM_CS_SECC_INPUTS,
    ADM_CS_SPCC_INPUTS,
    CCS_EXTRA_INFORMATION,
    MCS_EXTRA_INFORMATION,
    OCPP_CONTROL,
];

// No message: what a number that is no kind says.
const NO_MESSAGE: Message = Message(0, false, 0, false, 0);

// The compiler makes look-up tables of the arms (docs/DECISIONS.md, "Shape"); of an array at an index that is not known it builds the whole on the stack at
// each call.
// Kept (6): the arrays are for the search alone, which goes through them one by one.
// Kept (4): no conversion, but the message of a kind (`messages`), which the theorems have as any number.
#[inline(always)]
pub fn message_at(kind: usize) -> Message
    ensures { result ≡ get_or messages kind no_message }
{
    match kind {
        0 => POWER_MODULES_STATUS,
        1 => DC_POWER_PARAMETERS,
        2 => ADVANTICS_CONTROLLER_STATUS,
        3 => NEW_CHARGE_SESSION,
        4 => CHARGE_STATUS_CHANGE,
        5 => DC_POWER_CONTROL,
        6 => CHARGE_SESSION_FINISHED,
        7 => EMERGENCY_STOP,
        8 => EV_ID_CCS_PART2_DIN,
        9 => CHARGE_CONTROL1,
        10 => CHARGE_STATE1,
        11 => PT1000_STATE,
        12 => OLD_POWER_MODULES_STATUS,
        13 => OLD_POWER_MODULES_LIMITS,
        14 => OLD_SEQUENCE_CONTROL,
        15 => OLD_ADM_CS_SECC_OUTPUTS,
        16 => OLD_NEW_CHARGE_SESSION,
        17 => OLD_INSULATION_TEST,
        18 => OLD_PRECHARGE,
        19 => OLD_CHARGE_STATUS_CHANGE,
        20 => OLD_CHARGING_LOOP,
        21 => OLD_EMERGENCY_STOP,
        22 => OLD_CHARGE_SESSION_FINISHED,
        23 => OLD_ADVANTICS_CONTROLLER_STATUS,
        24 => OLD_ADM_CO_CUI1_INPUTS,
        25 => OLD_ADM_CS_SECC_INPUTS,
        26 => OLD_EV_ID_CCS_PART2_DIN,
        27 => OLD_ADM_CS_SPCC_INPUTS,
        28 => OLD_CCS_EXTRA_INFORMATION,
        29 => OLD_MCS_EXTRA_INFORMATION,
        30 => SEQUENCE_CONTROL,
        31 => ADM_CS_SECC_OUTPUTS,
        32 => EV_INFORMATION_BATTERY,
        33 => EV_INFORMATION_VOLTAGES,
        34 => EV_INFORMATION_CHARGE_LIMITS,
        35 => EV_INFORMATION_DISCHARGE_LIMITS,
        36 => EV_INFORMATION_ENERGY,
        37 => ADM_CO_CUI1_INPUTS,
        38 => ADM_CS_SECC_INPUTS,
        39 => ADM_CS_SPCC_INPUTS,
        40 => CCS_EXTRA_INFORMATION,
        41 => MCS_EXTRA_INFORMATION,
        42 => OCPP_CONTROL,
        _ => NO_MESSAGE,
    }
}
