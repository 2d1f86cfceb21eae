//! What holds of batches as bytes, whoever writes or reads them.
ghost use Rattle.std.specs.Prelude.{◌≡◌, ℕ, List, Some};
ghost use Rattle.raft_codec.specs.Number.{AreBytes};
ghost use Rattle.raft_records.specs.Item.{Batch};
ghost use Rattle.raft_c_batch.specs.Batch.{IsGivenBatch, batch_bytes, read_batch};

/// The bytes of a batch are read as it, and nothing is read but the bytes of a batch.
pub fn batch_round_trip()
    ensures encoded { (items : Batch) → IsGivenBatch items
        → read_batch (batch_bytes items) ≡ Some items }
    ensures decoded { (bytes : List ℕ) (items : Batch) → AreBytes bytes
        → read_batch bytes ≡ Some items → (bytes ≡ batch_bytes items) × IsGivenBatch items }
{}
