//! Making graphs: each question, the parts of a graph, and what is not looked at.
use base::fault::Fault;
use base::job_set::JobSet;
use graph::draft::Draft;
use graph::graph::Graph;
use std::array::from_fn;
use std::process::Abort;
use std::test::Fail;

// The parts of graph A, with something from n up.
pub fn draft_a() -> Draft {
    let mut times = [9; 64];
    times[0..6].copy_from_slice(&[2, 5, 4, 3, 6, 1]);
    let mut preds = [JobSet::from([60, 63]); 64];
    preds[0] = JobSet::empty();
    preds[1] = JobSet::from([0]);
    preds[2] = JobSet::from([0]);
    preds[3] = JobSet::from([0]);
    preds[4] = JobSet::from([1, 2]);
    preds[5] = JobSet::from([3, 4]);
    Draft {
        jobs: 6,
        crews: 2,
        layover: 18,
        times,
        preds,
    }
}

// 64 jobs of 1,440 minutes, each after all the others before it, 16 crews.
pub fn largest_draft() -> Draft {
    Draft {
        jobs: 64,
        crews: 16,
        layover: 92_160,
        times: [1440; 64],
        preds: from_fn(|v| JobSet::below(v as u8)),
    }
}

#[test]
fn parts(rt: HostRuntime) -> Result<(), Fail> {
    let Ok(a) = Graph::make(&draft_a()) else {
        return Err(Fail::new("graph A"));
    };
    assert!(rt; a.jobs() == 6 && a.crews() == 2 && a.layover() == 18);
    assert!(rt; a.time(0) == 2 && a.time(4) == 6 && a.time(5) == 1);
    assert!(rt; a.time(6) == 0 && a.time(63) == 0 && a.time(64) == 0 && a.time(255) == 0);
    assert_eq!(rt; a.preds(0), JobSet::empty());
    assert_eq!(rt; a.preds(4), JobSet::from([1, 2]));
    assert_eq!(rt; a.preds(6), JobSet::empty());
    assert_eq!(rt; a.preds(255), JobSet::empty());
    assert_eq!(rt; a.succs(1), JobSet::from([4]));
    assert_eq!(rt; a.succs(5), JobSet::empty());
    assert_eq!(rt; a.succs(60), JobSet::empty());
    assert_eq!(rt; a.succs(255), JobSet::empty());
    Ok(())
}

#[test]
fn equal_graphs(rt: HostRuntime) {
    let mut other = draft_a();
    other.times[6] = 0;
    assert_eq!(rt; Graph::make(&other), Graph::make(&draft_a()));
    other.times[5] = 2;
    assert_ne!(rt; Graph::make(&other), Graph::make(&draft_a()));
    let one = Graph::smallest();
    assert!(rt; one.jobs() == 1 && one.crews() == 1 && one.layover() == 1 && one.time(0) == 1);
}

// Making a graph of these parts is refused so.
fn refuses(rt: &impl Abort, draft: &Draft, fault: Fault) {
    assert_eq!(rt; Graph::make(draft), Err(fault));
}

#[test]
fn sizes(rt: HostRuntime) {
    let mut draft = draft_a();
    draft.crews = 17;
    draft.jobs = 65;
    refuses(&rt, &draft, Fault::JobsOutOfRange { value: 65 });
    draft.jobs = 0;
    refuses(&rt, &draft, Fault::JobsOutOfRange { value: 0 });
    draft.jobs = 6;
    draft.layover = 92_161;
    refuses(&rt, &draft, Fault::CrewsOutOfRange { value: 17 });
    draft.crews = 16;
    refuses(&rt, &draft, Fault::LayoverOutOfRange { value: 92_161 });
    draft.layover = 92_160;
    assert!(rt; Graph::make(&draft).is_ok());
    assert!(rt; Graph::make(&largest_draft()).is_ok());
}

#[test]
fn jobs(rt: HostRuntime) {
    let mut draft = draft_a();
    draft.preds[5] = JobSet::empty();
    refuses(&rt, &draft, Fault::NoPredecessor { job: 5 });
    draft.times[4] = 1441;
    refuses(&rt, &draft, Fault::TimeOutOfRange { job: 4 });
    draft.preds[2] = JobSet::from([1, 2]);
    refuses(&rt, &draft, Fault::NoPredecessor { job: 2 });
    draft.times[2] = 0;
    refuses(&rt, &draft, Fault::TimeOutOfRange { job: 2 });
    draft.preds[0] = JobSet::from([63]);
    refuses(&rt, &draft, Fault::NoPredecessor { job: 0 });
}

#[test]
fn successors(rt: HostRuntime) {
    let mut draft = draft_a();
    draft.preds[5] = JobSet::from([4]);
    refuses(&rt, &draft, Fault::NoSuccessor { job: 3 });
    draft.preds[4] = JobSet::from([3]);
    refuses(&rt, &draft, Fault::NoSuccessor { job: 1 });
    draft.preds[5] = JobSet::from([2, 4]);
    draft.preds[3] = JobSet::from([1]);
    assert!(rt; Graph::make(&draft).is_ok());
}
