// Classes over all sets of twelve items: which pupils enter the gate, and when.
ghost use Rattle.std.specs.Prelude.{◌≡◌, ◌<◌, ◌≤◌, IfOk, length};
ghost use Rattle.ls_theory.specs.Settings.{Settings as Settled};
ghost use Rattle.ls_weight.specs.Weighings.{IsWeighable};

use crate::gates::{Counting, Meeting, Timing, time_used};
use crate::tally::Tally;
use ls_class::{ClassTable, Gate, run_class};
use ls_domain::Domain;
use ls_enum::{ListFault, list_all};
use ls_interior::{Counted, Free, Steps};
use ls_set::{PLACES, SetList};
use ls_weight::{BadSetting, Settings, WeightFault};
use std::alloc::{AllocError, Global};
use std::marker::Brand;
use std::sync::ledger::{Blank, Ledger};
use std::thread::Threads;
use std::time::CpuClock;

// All sets of the items, which can be weighed.
#[tactic(auto, using(crate::proofs::Weighable::all_weighable))]
fn all_sets<L: Ledger>(alloc: Global, n: u32, blank: Blank) -> Result<SetList, ListFault>
    requires some { 0 < n }
    requires items { n ≤ PLACES }
    requires name { blank.name ≡ L.name }
    requires parts { blank.parts ≡ L.parts }
    requires one { blank.parts ≡ 1 }
    ensures { IfOk result (λ sets.
        (s : Settled) → length s.ratios ≡ n → IsWeighable n sets s) }
{
    let free = Free::new(n);
    list_all(
        alloc,
        &Counted::new(&free),
        65_536,
        &mut Steps::<L>::new(blank),
    )
}

// A table of so many pupils.
fn table_of(alloc: Global, pupils: usize) -> Result<String, AllocError> {
    let mut table = String::from_str(alloc, "pupil,a,b,c,d,e,f,g,h,i,j,k,l\n")?;
    for k in 0..pupils {
        let row = format!(in alloc; "p{k},1,0,1,0,1,0,1,0,1,0,1,0\n")?;
        table.push_str(&row)?;
    }
    Ok(table)
}

// What comes of a class of so many pupils; nothing where there is none.
fn assess<R: Threads + AllocGlobal + Sync, G: Gate + Sync>(
    rt: &R,
    gate: &G,
    domain: &Domain,
    states: &SetList,
    s: &Settings,
    pupils: usize,
) -> Option<Result<(), WeightFault>>
    requires { IsWeighable (length domain.now) states.now s.now }
{
    let text = table_of(rt.alloc(), pupils).ok()?;
    let table = ClassTable::from_csv(rt.alloc(), domain, text.as_bytes()).ok()?;
    match run_class(rt, rt.alloc(), gate, domain.count(), states, s, &table) {
        Ok(_) => Some(Ok(())),
        Err(fault) => Some(Err(fault)),
    }
}

// Two pupils are replayed at the same time.
fn at_once<R: Threads + AllocGlobal + Sync>(
    tally: &mut Tally,
    rt: &R,
    domain: &Domain,
    states: &SetList,
    s: &Settings,
)
    requires { IsWeighable (length domain.now) states.now s.now }
{
    let gate = Meeting::new();
    let known = assess(rt, &gate, domain, states, s, 2);
    tally.want(
        known == Some(Ok(())) && gate.both_met(),
        "two pupils at once",
    );
}

// Each pupil enters once.
fn once<R: Threads + AllocGlobal + Sync>(
    tally: &mut Tally,
    rt: &R,
    domain: &Domain,
    states: &SetList,
    s: &Settings,
) -> Result<(), AllocError>
    requires { IsWeighable (length domain.now) states.now s.now }
{
    for pupils in [0, 1, 3, 257, 1027] {
        let gate = Counting::new(rt.alloc(), pupils)?;
        let known = assess(rt, &gate, domain, states, s, pupils);
        tally.want(known == Some(Ok(())) && gate.each(1), "each pupil once");
    }
    Ok(())
}

// A pupil enters before its first question: nearly all of the processor time is used afterwards.
fn first<R: Threads + AllocGlobal + CpuClock + Sync>(
    tally: &mut Tally,
    rt: &R,
    domain: &Domain,
    states: &SetList,
    s: &Settings,
)
    requires { IsWeighable (length domain.now) states.now s.now }
{
    let gate = Timing::new(rt);
    let begun = time_used(rt);
    let known = assess(rt, &gate, domain, states, s, 1);
    let ended = time_used(rt);
    let entered = gate.used();
    let before = entered.saturating_sub(begun);
    let after = ended.saturating_sub(entered);
    let holds = known == Some(Ok(())) && begun <= entered && before < after;
    tally.want(holds, "entering before the first question");
}

// Settings that are too heavy are told before any pupil enters.
fn never<R: Threads + AllocGlobal + Sync>(
    tally: &mut Tally,
    rt: &R,
    domain: &Domain,
    states: &SetList,
    s: &Settings,
) -> Result<(), AllocError>
    requires { IsWeighable (length domain.now) states.now s.now }
{
    let gate = Counting::new(rt.alloc(), 2)?;
    let known = assess(rt, &gate, domain, states, s, 2);
    let heavy = Some(Err(WeightFault::Heavy { replies: 19 }));
    tally.want(known == heavy && gate.each(0), "heavy settings");
    Ok(())
}

const NAMES: &[u8] = b"a\nb\nc\nd\ne\nf\ng\nh\ni\nj\nk\nl\n";

// Makes settings too heavy, by the odds 64 of each item.
fn make_heavy(s: &mut Settings) -> Result<(), BadSetting>
    requires { 0 < length s.old.ratios }
    ensures { length s.new.ratios ≡ length s.old.ratios }
{
    s.set_item(0, 64, 64)?;
    s.set_all(64, 64)
}

// All that is tried, over states that can be weighed by settings of as many items.
fn entering<R: Threads + AllocGlobal + CpuClock + Sync>(
    tally: &mut Tally,
    rt: &R,
    domain: &Domain,
    states: &SetList,
    s: &mut Settings,
) -> Result<(), AllocError>
    requires weighable { (s : Settled) → length s.ratios ≡ length domain.now →
        IsWeighable (length domain.now) states.now s }
    requires some { 0 < length domain.now }
    requires settings { length s.old.ratios ≡ length domain.now }
{
    at_once(tally, rt, domain, states, s);
    once(tally, rt, domain, states, s)?;
    first(tally, rt, domain, states, s);
    tally.want(make_heavy(s).is_ok(), "heavy odds");
    never(tally, rt, domain, states, s)
}

// The same, beginning with the standard settings.
fn by_settings<R: Threads + AllocGlobal + CpuClock + Sync>(
    tally: &mut Tally,
    rt: &R,
    domain: &Domain,
    states: &SetList,
)
    requires { (s : Settled) → length s.ratios ≡ length domain.now →
        IsWeighable (length domain.now) states.now s }
{
    match Settings::standard(rt.alloc(), domain.count()) {
        Ok(mut s) => {
            let done = entering(tally, rt, domain, states, &mut s);
            tally.want(done.is_ok(), "memory for pupils");
        }
        Err(_) => tally.want(false, "settings"),
    }
}

// The same over all sets of the domain's items.
fn by_sets<R: Threads + AllocGlobal + CpuClock + Sync>(
    tally: &mut Tally,
    rt: &R,
    domain: &Domain,
    states: Result<SetList, ListFault>,
)
    requires { IfOk states (λ sets. (s : Settled) → length s.ratios ≡ length domain.now →
        IsWeighable (length domain.now) sets s) }
{
    match states {
        Ok(states) => by_settings(tally, rt, domain, &states),
        Err(_) => tally.want(false, "all sets"),
    }
}

#[test]
fn pupils_enter_the_gate(rt: HostRuntime) {
    let mut tally = Tally::new();
    match Domain::from_csv(rt.alloc(), NAMES) {
        Ok(domain) => {
            let states = all_sets::<Brand>(rt.alloc(), domain.count(), Blank::new(1));
            by_sets(&mut tally, &rt, &domain, states);
        }
        Err(_) => tally.want(false, "a domain"),
    }
    assert_eq!(rt; tally.wrong, None);
}
