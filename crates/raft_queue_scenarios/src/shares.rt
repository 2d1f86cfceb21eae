//! How many workers read each queue, and how many files each worker takes.

use raft_builder::{Workers, chunk_len, workers_for};

/// The number of threads and of each queue's files, the workers of each queue, and the most files
/// that one of them takes.
struct Case {
    threads: usize,
    files: (usize, usize),
    workers: (usize, usize),
    chunks: (usize, usize),
}

static CASES: [Case; 12] = [
    Case {
        threads: 1,
        files: (5, 0),
        workers: (1, 1),
        chunks: (5, 1),
    },
    Case {
        threads: 2,
        files: (5, 0),
        workers: (2, 2),
        chunks: (3, 1),
    },
    Case {
        threads: 8,
        files: (5, 0),
        workers: (5, 5),
        chunks: (1, 1),
    },
    Case {
        threads: 4,
        files: (6, 2),
        workers: (3, 1),
        chunks: (2, 2),
    },
    Case {
        threads: 1,
        files: (6, 2),
        workers: (1, 1),
        chunks: (6, 2),
    },
    Case {
        threads: 4,
        files: (0, 3),
        workers: (3, 3),
        chunks: (1, 1),
    },
    Case {
        threads: 4,
        files: (19, 1),
        workers: (4, 1),
        chunks: (5, 1),
    },
    Case {
        threads: 8,
        files: (3, 1),
        workers: (3, 1),
        chunks: (1, 1),
    },
    Case {
        threads: 0,
        files: (3, 1),
        workers: (1, 1),
        chunks: (3, 1),
    },
    Case {
        threads: 3,
        files: (1, 9),
        workers: (1, 2),
        chunks: (1, 5),
    },
    Case {
        threads: 0,
        files: (3, 3),
        workers: (1, 1),
        chunks: (3, 3),
    },
    Case {
        threads: usize::MAX,
        files: (2, 2),
        workers: (2, 2),
        chunks: (1, 1),
    },
];

fn is_as_said(case: &Case) -> bool {
    let workers = workers_for(case.threads, case.files.0, case.files.1);
    let wanted = Workers {
        append: case.workers.0,
        rewrite: case.workers.1,
    };
    workers == wanted
        && (workers.append == 0 || chunk_len(case.files.0, workers.append) == case.chunks.0)
        && (workers.rewrite == 0 || chunk_len(case.files.1, workers.rewrite) == case.chunks.1)
}

#[test]
fn chunks_for_workers(rt: HostRuntime) {
    for case in &CASES {
        assert!(rt; is_as_said(case), "{} threads", case.threads);
    }
}
