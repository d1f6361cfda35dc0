// The rows of document 000 that 02's Req 14 adds, from Sequence_Control to EV_Information_Energy: extended identifiers, byte 0 lowest. In the order of their
// identifiers and, within a message, of their starts.
ghost use Rattle.std.specs.Prelude.{◌≡◌, ◌≤◌, ◌<◌, get_or};
ghost use Rattle.page_charger.specs.page_table.specs.Table.{rows, no_row};
ghost use Rattle.page_charger.specs.page_table.specs.Layout.{row_of};

use page_charger::page_table::Line;

pub const END: usize = 169;

// 01: "layouts are one constant table". A row stands at its place in it: the compiler makes look-up tables of the arms (docs/DECISIONS.md, "Shape").
// Kept (4): no conversion, but the row at a place of the table (`rows`).
#[tactic(auto, using(crate::proofs::Arms::row_of_key))]
#[inline(always)]
pub fn line_at(i: usize) -> Line
    requires { (139 ≤ i) × (i < 169) }
    ensures { row_of result ≡ get_or rows i no_row }
{
    match i {
        // Sequence_Control
        139 => Line(30, 0, 1, 0, false, 0b11), // Start_Charge_Authorisation
        140 => Line(30, 1, 1, 1, false, 0b11), // CHAdeMO_Start_Button
        141 => Line(30, 8, 1, 8, false, 0b11), // CCS_Authorisation_Done
        142 => Line(30, 9, 1, 9, false, 0b11), // CCS_Authorisation_Valid
        143 => Line(30, 10, 1, 10, false, 0b11), // Charge_Parameters_Done
        144 => Line(30, 16, 1, 16, false, 0b11), // User_Stop_Button
        // ADM_CS_SECC_Outputs
        145 => Line(31, 0, 1, 0, false, 0), // Digital_Output1
        146 => Line(31, 1, 1, 1, false, 0), // Digital_Output2
        147 => Line(31, 2, 1, 2, false, 0), // Digital_Output3
        148 => Line(31, 3, 1, 3, false, 0), // Digital_Output4
        149 => Line(31, 4, 60, 4, false, 0), // Reserved
        // EV_Information_Battery
        150 => Line(32, 0, 16, 0, false, 0), // Battery_Capacity
        151 => Line(32, 16, 8, 16, false, 0), // Present_State_of_Charge
        152 => Line(32, 24, 8, 24, false, 0), // Minimum_State_of_Charge
        153 => Line(32, 32, 8, 32, false, 0), // Target_State_of_Charge
        154 => Line(32, 40, 8, 40, false, 0), // Maximum_State_of_Charge
        // EV_Information_Voltages
        155 => Line(33, 0, 16, 0, false, 0), // EV_Minimum_Voltage
        156 => Line(33, 16, 16, 16, false, 0), // EV_Maximum_Voltage
        157 => Line(33, 32, 16, 32, false, 0), // EV_Present_Voltage
        // EV_Information_Charge_Limits
        158 => Line(34, 0, 16, 0, false, 0), // EV_Minimum_Charge_Current
        159 => Line(34, 16, 16, 16, false, 0), // EV_Maximum_Charge_Current
        160 => Line(34, 32, 16, 32, false, 0), // EV_Minimum_Charge_Power
        161 => Line(34, 48, 16, 48, false, 0), // EV_Maximum_Charge_Power
        // EV_Information_Discharge_Limits
        162 => Line(35, 0, 16, 0, false, 0), // EV_Minimum_Discharge_Current
        163 => Line(35, 16, 16, 16, false, 0), // EV_Maximum_Discharge_Current
        164 => Line(35, 32, 16, 32, false, 0), // EV_Minimum_Discharge_Power
        165 => Line(35, 48, 16, 48, false, 0), // EV_Maximum_Discharge_Power
        // EV_Information_Energy
        166 => Line(36, 0, 16, 0, true, 0), // EV_Minimum_Energy_Request
        167 => Line(36, 16, 16, 16, true, 0), // EV_Target_Energy_Request
        168 => Line(36, 32, 16, 32, true, 0), // EV_Maximum_Energy_Request
        _ => unreachable!(),
    }
}
