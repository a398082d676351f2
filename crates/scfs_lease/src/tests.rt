use crate::Leases;
use std::test::Fail;

#[test]
fn sessions_are_due_in_their_order_from_half_of_a_life_on(rt: HostRuntime) -> Result<(), Fail> {
    let mut leases = Leases::new(rt.alloc())?;
    leases.taken(2, 100)?;
    leases.taken(1, 100)?;
    assert_eq!(rt; leases.due(49, 100, 0), None);
    assert_eq!(rt; leases.due(50, 100, 0), Some(1));
    assert_eq!(rt; leases.due(50, 100, 1), Some(2));
    assert_eq!(rt; leases.due(50, 100, 2), None);
    assert_eq!(rt; leases.due(99, 100, 0), Some(1));
    assert_eq!(rt; leases.due(100, 100, 0), None);
    Ok(())
}

#[test]
fn a_renewal_is_asked_for_once_until_it_is_told(rt: HostRuntime) -> Result<(), Fail> {
    let mut leases = Leases::new(rt.alloc())?;
    leases.taken(1, 100)?;
    leases.taken(2, 100)?;
    leases.asked(1);
    assert_eq!(rt; leases.due(60, 100, 0), Some(2));
    leases.renewed(1, 160);
    assert_eq!(rt; leases.due(109, 100, 0), None);
    assert_eq!(rt; leases.due(110, 100, 0), Some(1));
    leases.lapsed(1);
    assert_eq!(rt; leases.due(110, 100, 0), None);
    assert_eq!(rt; leases.due(60, 100, 0), Some(2));
    leases.taken(2, 200)?;
    assert_eq!(rt; leases.due(60, 100, 0), None);
    assert_eq!(rt; leases.due(150, 100, 0), Some(2));
    leases.given_back(2);
    assert_eq!(rt; leases.due(150, 100, 0), None);
    Ok(())
}
