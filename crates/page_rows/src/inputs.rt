// The rows of document 000 that 02's Req 14 adds, from ADM_CO_CUI1_Inputs to OCPP_Control, in the same order.
ghost use Rattle.std.specs.Prelude.{◌≡◌, ◌≤◌, ◌<◌, get_or};
ghost use Rattle.page_charger.specs.page_table.specs.Table.{rows, no_row};
ghost use Rattle.page_charger.specs.page_table.specs.Layout.{row_of};

use page_charger::page_table::Line;

// The rows with labels, of messages whose every bit is a signal's: the reader asks for them by name.
pub const CP_STATE: Line = Line(40, 0, 8, 0, false, 0b1001001001001);

pub const CE_STATE: Line = Line(41, 0, 8, 0, false, 0b1111111111);

pub const ID_STATE: Line = Line(41, 8, 8, 8, false, 0b1111);

// 01: "layouts are one constant table". A row stands at its place in it: the compiler makes look-up tables of the arms (docs/DECISIONS.md, "Shape").
// Kept (4): no conversion, but the row at a place of the table (`rows`).
#[tactic(auto, using(crate::proofs::Arms::row_of_key))]
#[inline(always)]
pub fn line_at(i: usize) -> Line
    requires { (169 ≤ i) × (i < 206) }
    ensures { row_of result ≡ get_or rows i no_row }
{
    match i {
        // ADM_CO_CUI1_Inputs
        169 => Line(37, 0, 1, 0, false, 0), // SWITCH0
        170 => Line(37, 1, 1, 1, false, 0), // SWITCH1
        171 => Line(37, 2, 1, 2, false, 0), // SWITCH2
        172 => Line(37, 3, 1, 3, false, 0), // SWITCH3
        173 => Line(37, 4, 1, 4, false, 0), // SWITCH4
        174 => Line(37, 5, 1, 5, false, 0), // SWITCH5
        175 => Line(37, 6, 26, 6, false, 0), // Reserved
        176 => Line(37, 32, 8, 32, false, 0), // Colibri_Temperature
        177 => Line(37, 40, 8, 40, false, 0), // CPU_Temperature
        178 => Line(37, 48, 8, 48, false, 0), // Pistol_PTC1
        179 => Line(37, 56, 8, 56, false, 0), // Pistol_PTC2
        // ADM_CS_SECC_Inputs
        180 => Line(38, 0, 1, 0, false, 0), // Digital_Input1
        181 => Line(38, 1, 1, 1, false, 0), // Digital_Input2
        182 => Line(38, 2, 1, 2, false, 0), // Digital_Input3
        183 => Line(38, 3, 1, 3, false, 0), // Digital_Input4
        184 => Line(38, 4, 36, 4, false, 0), // Reserved
        185 => Line(38, 40, 8, 40, false, 0), // CPU_Temperature
        186 => Line(38, 48, 8, 48, false, 0), // Pistol_PTC1
        187 => Line(38, 56, 8, 56, false, 0), // Pistol_PTC2
        // ADM_CS_SPCC_Inputs
        188 => Line(39, 0, 1, 0, false, 0), // Digital_Input1
        189 => Line(39, 1, 1, 1, false, 0), // Digital_Input2
        190 => Line(39, 2, 1, 2, false, 0), // Digital_Input3
        191 => Line(39, 3, 1, 3, false, 0), // Digital_Input4
        192 => Line(39, 4, 4, 4, false, 0), // Reserved
        193 => Line(39, 8, 8, 8, false, 0), // CPU_Temperature0
        194 => Line(39, 16, 8, 16, false, 0), // CPU_Temperature1
        195 => Line(39, 24, 8, 24, false, 0), // PT1K_A
        196 => Line(39, 32, 8, 32, false, 0), // PT1K_B
        197 => Line(39, 48, 8, 48, false, 0), // PT1KS_C
        198 => Line(39, 56, 8, 56, false, 0), // PT1KS_D
        // CCS_Extra_Information
        199 => CP_STATE, // CP_State
        200 => Line(40, 8, 16, 8, false, 0), // CP_Duty_Cycle
        201 => Line(40, 24, 40, 24, false, 0), // Reserved
        // MCS_Extra_Information
        202 => CE_STATE, // CE_State
        203 => ID_STATE, // ID_State
        204 => Line(41, 16, 48, 16, false, 0), // Reserved
        // OCPP_Control
        205 => Line(42, 0, 16, 0, true, 0), // Dynamic_Target_Current
        _ => unreachable!(),
    }
}
