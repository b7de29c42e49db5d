// What every call stands on: the settings and their limits (settings.rt), what goes with a table (head.rt), the reasons and places of
// refusals (refusal.rt), and the edge between document 01's whole numbers and heights counted from a datum under the plate (height.rt).
#![tactic(auto)]

pub mod head;
pub mod height;
pub mod refusal;
pub mod settings;
