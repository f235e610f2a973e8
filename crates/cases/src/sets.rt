//! Sets of job numbers at their edges.
use base::job_set::JobSet;

#[test]
fn members_above_63(rt: HostRuntime) {
    let mut few = JobSet::from([0, 63]);
    assert!(rt; few.contains(0) && few.contains(63) && !few.contains(64) && !few.contains(255));
    assert!(rt; !few.insert(64) && !few.insert(255) && !few.remove(64));
    assert_eq!(rt; few, JobSet::from([63, 0, 64, 0]));
    assert!(rt; few.remove(63) && !few.remove(63));
    assert_eq!(rt; few, JobSet::from([0]));
}

#[test]
fn all_below(rt: HostRuntime) {
    assert_eq!(rt; JobSet::below(0), JobSet::empty());
    assert_eq!(rt; JobSet::below(3), JobSet::from([0, 1, 2]));
    assert_eq!(rt; JobSet::below(64).len(), 64);
    assert_eq!(rt; JobSet::below(255), JobSet::below(64));
}

#[test]
fn of_two_sets(rt: HostRuntime) {
    let a = JobSet::from([1, 2, 40]);
    let b = JobSet::from([2, 63]);
    assert_eq!(rt; a.union(b), JobSet::from([1, 2, 40, 63]));
    assert_eq!(rt; a.intersection(b), JobSet::from([2]));
    assert_eq!(rt; a.difference(b), JobSet::from([1, 40]));
    assert!(rt; a.intersection(b).is_subset(a) && !a.is_subset(b));
    assert!(rt; a.difference(a).is_empty() && !a.is_empty());
    assert_eq!(rt; a.len(), 3);
}

#[test]
fn in_ascending_sequence(rt: HostRuntime) {
    assert!(rt; JobSet::from([63, 5, 0, 17]).members().eq([0, 5, 17, 63]));
    let mut two = JobSet::from([9, 4]);
    assert_eq!(rt; two.lowest(), Some(4));
    assert_eq!(rt; two.take_lowest(), Some(4));
    assert_eq!(rt; two.take_lowest(), Some(9));
    assert_eq!(rt; two.take_lowest(), None);
    assert_eq!(rt; JobSet::empty().lowest(), None);
}
