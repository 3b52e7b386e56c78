// Gates that note which pupils pass, or when.
use ls_class::Gate;
use std::alloc::{AllocError, Global};
use std::sync::atomic::{AtomicBool, AtomicU64, Ordering};
use std::time::CpuClock;

// A gate at which each of two pupils waits a while for the other.
#[derive(Drop)]
pub(crate) struct Meeting {
    came: [AtomicBool; 2],
    met: [AtomicBool; 2],
}

impl Meeting {
    pub(crate) fn new() -> Meeting {
        Meeting {
            came: [AtomicBool::new(false), AtomicBool::new(false)],
            met: [AtomicBool::new(false), AtomicBool::new(false)],
        }
    }

    // Whether each of the two saw that the other had come.
    pub(crate) fn both_met(&self) -> bool {
        self.met[0].load(Ordering::SeqCst) && self.met[1].load(Ordering::SeqCst)
    }
}

impl Gate for Meeting {
    fn enter(&self, place: u32) {
        if place > 1 {
            return;
        }
        let own = place as usize;
        self.came[own].store(true, Ordering::SeqCst);
        for _ in 0..200_000_000u32 {
            if self.came[1 - own].load(Ordering::SeqCst) {
                self.met[own].store(true, Ordering::SeqCst);
                return;
            }
        }
    }
}

// A gate that counts how often the pupil of each place enters.
#[derive(Drop)]
pub(crate) struct Counting {
    entered: Vec<AtomicU64>,
}

impl Counting {
    // For so many places.
    pub(crate) fn new(alloc: Global, places: usize) -> Result<Counting, AllocError> {
        Ok(Counting {
            entered: (0..places).map(|_| AtomicU64::new(0)).collect(alloc)?,
        })
    }

    // Whether the pupil of each place entered so often.
    pub(crate) fn each(&self, times: u64) -> bool {
        self.entered
            .iter()
            .all(|count| count.load(Ordering::SeqCst) == times)
    }
}

impl Gate for Counting {
    fn enter(&self, place: u32) {
        if let Some(count) = self.entered.get(place as usize) {
            count.fetch_add(1, Ordering::SeqCst);
        }
    }
}

// The processor time that the thread has used so far, in nanoseconds.
pub(crate) fn time_used<R: CpuClock>(rt: &R) -> u64 {
    match rt.thread_cpu_time() {
        Ok(time) => u64::try_from(time.as_nanos()).unwrap_or(0),
        Err(_) => 0,
    }
}

// A gate that notes what processor time its thread had used when the last pupil entered.
#[derive(Drop)]
pub(crate) struct Timing<'a, R: CpuClock> {
    rt: &'a R,
    used: AtomicU64,
}

impl<'a, R: CpuClock> Timing<'a, R> {
    pub(crate) fn new(rt: &'a R) -> Timing<'a, R> {
        Timing {
            rt,
            used: AtomicU64::new(0),
        }
    }

    pub(crate) fn used(&self) -> u64 {
        self.used.load(Ordering::SeqCst)
    }
}

impl<R: CpuClock> Gate for Timing<'_, R> {
    fn enter(&self, _place: u32) {
        self.used.store(time_used(self.rt), Ordering::SeqCst);
    }
}
