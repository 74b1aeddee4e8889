//! What a concurrent Boolean program means.
#![tactic(auto)]

mod flows;
mod laws;
mod messages;
mod numbering;
mod steps;
mod verdicts;
mod word;

pub use flows::{
    a_call_has_no_flow, a_flow_stays_in_its_body, a_point_tells_its_rest,
    a_step_flows_or_returns_or_enters, callers_do_not_matter_to_a_flow,
    each_frame_stands_in_its_body, each_statement_has_one_rest, rests_go_on_behind_what_holds_them,
    rests_have_their_points_in_text_order, rests_stand_at_their_points, the_exit_has_no_flow,
};
pub use laws::{
    a_label_in_a_loop_leads_back_to_the_loop, a_local_hides_a_global,
    a_loop_comes_back_behind_its_body, a_swap_computes_before_it_writes,
    an_assert_fails_where_0_is_a_value, an_assert_steps_where_1_is_a_value,
    an_assert_with_both_values_fails_and_goes_on, an_empty_stack_has_no_step,
    joining_to_nothing_changes_nothing, what_follows_a_block_follows_its_rests,
};
pub use messages::{
    a_message_is_due_where_a_procedure_is, a_pair_has_nothing_left_to_run,
    a_path_edge_has_a_rest_at_its_point, by_due_messages_only_due_messages_are_owed,
    by_due_messages_only_path_edges_are_reached, closed_messages_are_those_due,
    closed_messages_hold_all_that_is_due, due_messages_have_their_widths,
    more_messages_reach_and_owe_more, what_is_reached_has_an_entry, what_is_reached_has_its_widths,
    what_is_reached_stands_in_its_body,
};
pub use numbering::{each_body_is_numbered_from_1, statements_are_numbered_in_text_order};
pub use steps::{
    a_call_enters_with_its_arguments, a_call_for_a_value_waits, a_finished_frame_gives_its_result,
    a_finished_frame_goes, a_goto_leads_to_its_label, a_loop_goes_into_its_body_or_on,
    a_question_mark_has_both_values, a_result_is_0_until_a_value_is_returned,
    a_result_may_be_dropped, a_return_leaves_nothing_to_run, a_return_of_a_value_keeps_it,
    a_skip_goes_on, a_target_of_a_question_mark_gets_either_value,
    an_assume_steps_where_1_is_a_value, an_if_goes_into_a_branch,
};
pub use verdicts::{
    a_checked_write_is_never_unsafe, a_handshake_needs_three_rounds,
    a_reader_before_the_writer_needs_two_rounds, a_second_thread_of_one_procedure_fails,
    a_spinning_thread_keeps_no_failure_away, a_value_given_is_written, a_value_may_be_written_late,
    a_writer_before_the_reader_needs_one_round, more_rounds_reach_more, no_threads_never_fail,
    the_value_passed_last_lasts,
};
pub use word::{EXIT, Point, WORD_BITS, Word};
