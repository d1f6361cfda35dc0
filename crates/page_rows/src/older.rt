// The rows of document 001, the pages of the older controllers: extended identifiers, byte 0 lowest. In the order of their identifiers and, within a message,
// of their starts.
ghost use Rattle.std.specs.Prelude.{◌≡◌, ◌≤◌, ◌<◌, get_or};
ghost use Rattle.page_charger.specs.page_table.specs.Table.{rows, no_row};
ghost use Rattle.page_charger.specs.page_table.specs.Layout.{row_of};

use page_charger::page_table::Line;

// The rows with labels, of messages whose every bit is a signal's: the reader asks for them by name.
pub const OLD_SYSTEM_ENABLE: Line = Line(12, 48, 8, 48, false, 0b11);

pub const OLD_COMMUNICATION_PROTOCOL: Line = Line(16, 0, 8, 0, false, 0b11111111);

pub const OLD_PLUG_AND_PINS: Line = Line(16, 8, 8, 8, false, 0b11111);

pub const OLD_VEHICLE_READY_FOR_CHARGING: Line = Line(19, 0, 8, 0, false, 0b11);

pub const OLD_STOP_ORIGIN: Line = Line(21, 0, 8, 0, false, 0b1010);

pub const OLD_FINISHED_STATE: Line = Line(22, 0, 8, 0, false, 0b11);

pub const OLD_CONTROLLER_STATE: Line = Line(23, 0, 8, 0, false, 0b11111111111111);

pub const OLD_CP_STATE: Line = Line(28, 0, 8, 0, false, 0b1001001001001);

pub const OLD_CE_STATE: Line = Line(29, 0, 8, 0, false, 0b1111111111);

pub const OLD_ID_STATE: Line = Line(29, 8, 8, 8, false, 0b1111);

pub const END: usize = 139;

// 01: "layouts are one constant table". A row stands at its place in it: the compiler makes look-up tables of the arms (docs/DECISIONS.md, "Shape").
// Kept (4): no conversion, but the row at a place of the table (`rows`).
#[tactic(auto, using(crate::proofs::Arms::row_of_key))]
pub fn line_at(i: usize) -> Line
    requires { (61 ≤ i) × (i < 139) }
    ensures { row_of result ≡ get_or rows i no_row }
{
    match i {
        // Power_Modules_Status
        61 => Line(12, 0, 16, 0, false, 0), // Present_Voltage
        62 => Line(12, 16, 16, 16, true, 0), // Present_Current
        63 => Line(12, 32, 8, 32, false, 0), // Power_Modules_Temperature
        64 => Line(12, 40, 8, 40, false, 0), // Enclosure_Temperature
        65 => OLD_SYSTEM_ENABLE, // System_Enable
        66 => Line(12, 56, 8, 56, false, 0), // Insulation_Resistance
        // Power_Modules_Limits
        67 => Line(13, 0, 16, 0, false, 0), // Maximum_Voltage
        68 => Line(13, 16, 16, 16, true, 0), // Maximum_Current
        69 => Line(13, 32, 32, 32, false, 0), // Reserved
        // Sequence_Control
        70 => Line(14, 0, 1, 0, false, 0b11), // Start_Charge_Authorisation
        71 => Line(14, 1, 1, 1, false, 0b11), // CHAdeMO_Start_Button
        72 => Line(14, 8, 1, 8, false, 0b11), // CCS_Authorisation_Done
        73 => Line(14, 9, 1, 9, false, 0b11), // CCS_Authorisation_Valid
        74 => Line(14, 10, 1, 10, false, 0b11), // Charge_Parameters_Done
        75 => Line(14, 16, 1, 16, false, 0b11), // User_Stop_Button
        // ADM_CS_SECC_Outputs
        76 => Line(15, 0, 1, 0, false, 0), // Digital_Output1
        77 => Line(15, 1, 1, 1, false, 0), // Digital_Output2
        78 => Line(15, 2, 1, 2, false, 0), // Digital_Output3
        79 => Line(15, 3, 1, 3, false, 0), // Digital_Output4
        80 => Line(15, 4, 60, 4, false, 0), // Reserved
        // New_Charge_Session
        81 => OLD_COMMUNICATION_PROTOCOL, // Communication_Protocol
        82 => OLD_PLUG_AND_PINS, // Plug_and_pins
        83 => Line(16, 16, 16, 16, false, 0), // EV_Maximum_Voltage
        84 => Line(16, 32, 16, 32, false, 0), // EV_Maximum_Current
        85 => Line(16, 48, 8, 48, false, 0), // Battery_Capacity
        86 => Line(16, 56, 8, 56, false, 0), // State_of_Charge
        // Insulation_Test
        87 => Line(17, 0, 16, 0, false, 0), // Test_Voltage
        // Precharge
        88 => Line(18, 0, 16, 0, false, 0), // Target_Voltage
        89 => Line(18, 16, 16, 16, false, 0), // Maximum_Current
        // Charge_Status_Change
        90 => OLD_VEHICLE_READY_FOR_CHARGING, // Vehicle_Ready_for_Charging
        // Charging_Loop
        91 => Line(20, 0, 16, 0, false, 0), // Target_Voltage
        92 => Line(20, 16, 16, 16, true, 0), // Target_Current
        93 => Line(20, 32, 8, 32, false, 0), // State_of_Charge
        // Emergency_Stop
        94 => OLD_STOP_ORIGIN, // Origin
        // Charge_Session_Finished
        95 => OLD_FINISHED_STATE, // State
        // Advantics_Controller_Status
        96 => OLD_CONTROLLER_STATE, // State
        // ADM_CO_CUI1_Inputs
        97 => Line(24, 0, 1, 0, false, 0), // SWITCH0
        98 => Line(24, 1, 1, 1, false, 0), // SWITCH1
        99 => Line(24, 2, 1, 2, false, 0), // SWITCH2
        100 => Line(24, 3, 1, 3, false, 0), // SWITCH3
        101 => Line(24, 4, 1, 4, false, 0), // SWITCH4
        102 => Line(24, 5, 1, 5, false, 0), // SWITCH5
        103 => Line(24, 6, 26, 6, false, 0), // Reserved
        104 => Line(24, 32, 8, 32, false, 0), // Colibri_Temperature
        105 => Line(24, 40, 8, 40, false, 0), // CPU_Temperature
        106 => Line(24, 48, 8, 48, false, 0), // Pistol_PTC1
        107 => Line(24, 56, 8, 56, false, 0), // Pistol_PTC2
        // ADM_CS_SECC_Inputs
        108 => Line(25, 0, 1, 0, false, 0), // Digital_Input1
        109 => Line(25, 1, 1, 1, false, 0), // Digital_Input2
        110 => Line(25, 2, 1, 2, false, 0), // Digital_Input3
        111 => Line(25, 3, 1, 3, false, 0), // Digital_Input4
        112 => Line(25, 4, 36, 4, false, 0), // Reserved
        113 => Line(25, 40, 8, 40, false, 0), // CPU_Temperature
        114 => Line(25, 48, 8, 48, false, 0), // Pistol_PTC1
        115 => Line(25, 56, 8, 56, false, 0), // Pistol_PTC2
        // EV_ID_CCS_Part2_DIN
        116 => Line(26, 0, 8, 0, false, 0), // Byte0
        117 => Line(26, 8, 8, 8, false, 0), // Byte1
        118 => Line(26, 16, 8, 16, false, 0), // Byte2
        119 => Line(26, 24, 8, 24, false, 0), // Byte3
        120 => Line(26, 32, 8, 32, false, 0), // Byte4
        121 => Line(26, 40, 8, 40, false, 0), // Byte5
        // ADM_CS_SPCC_Inputs
        122 => Line(27, 0, 1, 0, false, 0), // Digital_Input1
        123 => Line(27, 1, 1, 1, false, 0), // Digital_Input2
        124 => Line(27, 2, 1, 2, false, 0), // Digital_Input3
        125 => Line(27, 3, 1, 3, false, 0), // Digital_Input4
        126 => Line(27, 4, 4, 4, false, 0), // Reserved
        127 => Line(27, 8, 8, 8, false, 0), // CPU_Temperature0
        128 => Line(27, 16, 8, 16, false, 0), // CPU_Temperature1
        129 => Line(27, 24, 8, 24, false, 0), // PT1K_A
        130 => Line(27, 32, 8, 32, false, 0), // PT1K_B
        131 => Line(27, 48, 8, 48, false, 0), // PT1KS_C
        132 => Line(27, 56, 8, 56, false, 0), // PT1KS_D
        // CCS_Extra_Information
        133 => OLD_CP_STATE, // CP_State
        134 => Line(28, 8, 16, 8, false, 0), // CP_Duty_Cycle
        135 => Line(28, 24, 40, 24, false, 0), // Reserved
        // MCS_Extra_Information
        136 => OLD_CE_STATE, // CE_State
        137 => OLD_ID_STATE, // ID_State
        138 => Line(29, 16, 48, 16, false, 0), // Reserved
        _ => unreachable!(),
    }
}
