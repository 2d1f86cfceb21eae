//! How many workers read a queue, and how many of its files each takes.
ghost use Rattle.std.specs.Prelude.{◌≡◌, ◌<◌};

/// How many workers read the files of each queue.
#[derive(Clone, Copy, Debug, PartialEq, Eq)]
pub struct Workers {
    pub append: usize,
    pub rewrite: usize,
}

ghost use Rattle.raft_builder.specs.Workers.{files_a_chunk, workers_for};

/// The workers of both queues, for this number of threads and files. There are no more workers than
/// files. If the Rewrite queue has one file, that file is mostly short: one extra worker reads it,
/// and all threads read the Append queue. If it has more, the queues share the workers by their
/// numbers of files, and each has at least one. If a queue has no file, the other has all workers.
pub fn workers_for(threads: usize, append: usize, rewrite: usize) -> Workers
    ensures value { result ≡ workers_for threads append rewrite }
{
    if rewrite == 1 {
        return Workers {
            append: threads.min(append).max(1),
            rewrite: 1,
        };
    }
    let files = append as u128 + rewrite as u128;
    let all = (threads as u128).min(files);
    if append == 0 || rewrite == 0 {
        return Workers {
            append: all as usize,
            rewrite: all as usize,
        };
    }
    let of_append = (all * append as u128 / files).max(1);
    let of_rewrite = all.saturating_sub(of_append).max(1);
    Workers {
        append: of_append as usize,
        rewrite: of_rewrite as usize,
    }
}

/// How many of the files each of these workers takes; the last one may take fewer.
pub fn chunk_len(files: usize, workers: usize) -> usize
    requires { 0 < workers }
    ensures value { result ≡ files_a_chunk files workers }
{
    files.div_ceil(workers).max(1)
}
