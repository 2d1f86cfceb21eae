//! Laws are functions without effects: their contracts state them. This file calls each.

use raft_base::laws::files_are_ordered;
use raft_codec::number::{u32_round_trip, u64_round_trip, var_round_trip};
use raft_env::laws::{a_folder_lists_its_files, calls_keep_files_consistent, other_files_stay};
use raft_files::completed_laws::failed_calls_add_no_record;
use raft_files::laws::{
    a_sealed_file_stays, a_writer_keeps_its_log, appended_record_is_read,
    crash_of_a_file_leaves_a_prefix, more_bytes_hide_no_batch, opening_keeps_the_log,
    readable_records_are_the_replayed_with_sound_blocks,
};
use raft_opening::still_laws::a_crash_leaves_still_bytes;
use raft_pipes::spare_laws::files_below_may_go;
use raft_queue_laws::damage::{damage_of_a_queue_is_detectable, premise_can_be_met};
use raft_records::laws::{
    bytes_after_a_record_are_ignored, decoded_record_is_encoded, encoded_record_is_decoded,
};

#[test]
fn laws_can_be_called() {
    u64_round_trip();
    u32_round_trip();
    var_round_trip();
    encoded_record_is_decoded();
    decoded_record_is_encoded();
    bytes_after_a_record_are_ignored();
    files_are_ordered();
    calls_keep_files_consistent();
    other_files_stay();
    a_folder_lists_its_files();
    appended_record_is_read();
    more_bytes_hide_no_batch();
    readable_records_are_the_replayed_with_sound_blocks();
    crash_of_a_file_leaves_a_prefix();
    a_writer_keeps_its_log();
    a_sealed_file_stays();
    opening_keeps_the_log();
    failed_calls_add_no_record();
    premise_can_be_met();
    damage_of_a_queue_is_detectable();
    files_below_may_go();
    a_crash_leaves_still_bytes();
}
