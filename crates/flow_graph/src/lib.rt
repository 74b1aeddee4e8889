//! Flow graphs: the steps inside one call of a sequential program.
#![tactic(auto)]

mod asserts;
mod assignment;
mod bit;
mod call;
mod case_tables;
mod drawing;
mod exit;
mod flow;
mod formula;
mod graph;
mod joining;
mod joint;
mod labels;
mod laws;
mod low_bits;
mod lowering;
mod outputs;
mod postfix;
mod put;
mod row;
mod scope;
mod side;
mod sizes;
mod table;
mod windows;

pub use asserts::{Asserts, find_asserts};
pub use assignment::Assignment;
pub use call::Call;
pub use drawing::{draw, graphs};
pub use exit::Exit;
pub use flow::Flow;
pub use graph::{Graph, Graphs};
pub use laws::{
    a_bad_pair_is_left_by_its_graph, a_graph_reaches_what_its_procedure_reaches,
    a_graph_sends_what_its_procedure_owes, a_number_tells_its_valuation,
    by_due_messages_a_graph_reaches_path_edges, by_due_messages_a_graph_sends_due_messages,
    its_numbers_tell_a_path_edge, its_numbers_tell_that_a_message_is_due,
    marked_programs_are_in_text_order, messages_of_all_that_is_sent_follow,
    messages_that_follow_hold_what_is_sent, more_messages_lead_a_graph_further,
    numbers_tell_their_message, the_entries_taken_are_those_entered,
    the_number_of_a_point_tells_its_rest, the_number_of_a_valuation_has_its_width,
    the_numbers_of_a_path_edge_have_its_point, triples_of_all_that_is_reached_follow,
    triples_that_follow_hold_what_is_reached, what_a_graph_reaches_has_an_entry,
    what_a_graph_reaches_has_its_widths, what_a_graph_sends_has_its_widths,
    what_graphs_leave_are_the_pairs, what_graphs_send_and_take_is_what_is_due,
};
