// How far long work is, told to a terminal.
use crate::looks::Looks;
use std::alloc::Global;
use std::io::IsTerminal;
use std::sync::atomic::{AtomicU64, Ordering};
use std::sync::{Arc, Wait};
use std::thread;
use std::thread::{JoinHandle, Threads};
use std::time::Duration;

/// For how many seconds it is told, at most: for twelve days.
const MAX_SECONDS: u64 = 1 << 20;

/// Work on so many files: how many of them are read, and whether it has ended (0 or 1).
#[derive(Drop)]
struct Work {
    files: usize,
    read: AtomicU64,
    ended: AtomicU64,
}

/// Counts files that are read, where somebody is told.
#[derive(Drop)]
pub struct Progress {
    work: Option<Arc<Work, Global>>,
}

impl Progress {
    /// Counts a file that is read.
    pub fn count(&self) {
        if let Some(work) = &self.work {
            work.read.fetch_add(1, Ordering::SeqCst);
        }
    }
}

/// Says each second on standard error how far the work is, where that is a terminal and more than faults is said. A thread of
/// its own does so. Where there is none, or no memory for it, nothing is said.
#[derive(Drop)]
pub struct Teller {
    pub progress: Progress,
    thread: Option<JoinHandle<()>>,
}

impl Teller {
    /// Begins to say how far the work on so many files is.
    pub fn begin<R: Threads + Wait + Copy + Send + 'static>(
        rt: &HostRuntime,
        threads: &R,
        looks: Looks,
        files: usize,
    ) -> Teller {
        let started = if !looks.is_quiet && rt.stderr().is_terminal() {
            start(rt, threads, files)
        } else {
            None
        };
        match started {
            Some((work, thread)) => Teller {
                progress: Progress { work: Some(work) },
                thread: Some(thread),
            },
            None => Teller {
                progress: Progress { work: None },
                thread: None,
            },
        }
    }

    /// Ends with it, and leaves the terminal's line empty.
    pub fn end<R: Threads>(self, threads: &R) {
        if let (Some(work), Some(thread)) = (self.progress.work, self.thread) {
            work.ended.store(1, Ordering::SeqCst);
            work.ended.wake_all();
            thread.join(threads);
        }
    }
}

/// The work, and the thread that says how far it is.
fn start<R: Threads + Wait + Copy + Send + 'static>(
    rt: &HostRuntime,
    threads: &R,
    files: usize,
) -> Option<(Arc<Work, Global>, JoinHandle<()>)> {
    let work = Work {
        files,
        read: AtomicU64::new(0),
        ended: AtomicU64::new(0),
    };
    let work = Arc::new(rt.alloc(), work).ok()?;
    let theirs = Arc::try_clone(&work).ok()?;
    let (rt, waits) = (*rt, *threads);
    let thread = thread::spawn(threads, move || tell(rt, &waits, &theirs)).ok()?;
    Some((work, thread))
}

/// Says each second how far the work is, until it has ended.
fn tell<R: Wait>(rt: HostRuntime, waits: &R, work: &Work) {
    let mut is_told = false;
    for second in 1..=MAX_SECONDS {
        work.ended.park_timeout(waits, 0, Duration::from_secs(1));
        if work.ended.load(Ordering::SeqCst) != 0 {
            break;
        }
        let read = work.read.load(Ordering::SeqCst);
        let _ = eprint!(rt; "\r{read} of {} files read, {second} s", work.files);
        is_told = true;
    }
    if is_told {
        let _ = eprint!(rt; "\r\x1b[K");
    }
}
