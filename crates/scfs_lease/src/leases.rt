ghost use Rattle.std.specs.Prelude.{◌≡◌, ◌≤◌, [], All, IfOk, IfSome, OnOk, count_by, false, nat_lt};
ghost use Rattle.scfs_lease.specs.Leases.{IsRising, IsDueAfter, first_due, with_lease, with_end, without_lease, with_renewal};

use scfs_base::Memory;
use std::alloc::Global;
use std::marker::Model;

/// The lock of a session, with its end as the agent was told it last, and whether a renewal of it is under way.
#[derive(Clone, Copy)]
pub struct Lease {
    pub session: u64,
    pub until: u64,
    pub asked: bool,
}

impl Lease {
    ghost use Rattle.scfs_lease.specs.Leases.{is_due, is_due_after, end_told, renewal_asked};

    /// Whether the lock lives, and is in the last half of a life of this length.
    fn is_due(&self, now: u64, lease: u64) -> bool
        ensures { result ≡ is_due now lease self.now }
    {
        now < self.until && self.until - now <= lease / 2
    }

    /// Whether its session is above this one, it is due, and no renewal is under way.
    fn is_due_after(&self, now: u64, lease: u64, after: u64) -> bool
        ensures { result ≡ is_due_after now lease after self.now }
    {
        after < self.session && self.is_due(now, lease) && !self.asked
    }

    /// The lock once the agent was told the new end of this session's lock.
    fn told(self, session: u64, until: u64) -> Lease
        ensures { result ≡ end_told session until self }
    {
        if self.session == session {
            Lease {
                session,
                until,
                asked: false,
            }
        } else {
            self
        }
    }

    /// The lock once a renewal of this session's lock is under way.
    fn asking(self, session: u64) -> Lease
        ensures { result ≡ renewal_asked session self }
    {
        if self.session == session {
            Lease {
                asked: true,
                ..self
            }
        } else {
            self
        }
    }
}

fn first_due(leases: &[Lease], now: u64, lease: u64, after: u64) -> Option<u64>
    ensures { result ≡ first_due now lease after leases.now }
{
    leases
        .iter()
        .find(|held| held.is_due_after(now, lease, after))
        .map(|held| held.session)
}

fn tell_end(leases: &mut [Lease], session: u64, until: u64)
    ensures { leases.new ≡ with_end session until leases.old }
{
    for held in leases.iter_mut() {
        *held = held.told(session, until);
    }
}

fn mark_asked(leases: &mut [Lease], session: u64)
    ensures { leases.new ≡ with_renewal session leases.old }
{
    for held in leases.iter_mut() {
        *held = held.asking(session);
    }
}

/// The locks of an agent's sessions, seen as the list of them by rising session number.
#[derive(Drop)]
pub struct Leases {
    held: Vec<Lease>,
}

impl Model for Leases {
    ghost use Rattle.std.specs.Prelude.{List};
    ghost use Rattle.scfs_lease.specs.declared.leases.Lease.{Lease};
    ghost use Rattle.scfs_lease.specs.Leases.{IsRising};

    ghost Value = { List Lease };

    ghost view = { λ leases. leases.held.items };

    ghost invariant = { λ leases. IsRising leases.held.items };
}

impl Leases {
    /// No lock.
    pub fn new(alloc: Global) -> Result<Leases, Memory>
        ensures { IfOk result (λ leases. leases ≡ []) }
    {
        Ok(Leases {
            held: Vec::new(alloc),
        })
    }

    /// How many sessions below this one have a lock.
    fn place(&self, session: u64) -> usize
        ensures { result ≡ count_by (λ l. nat_lt l.session session) self.now }
    {
        self.held
            .iter()
            .filter(|held| held.session < session)
            .count()
    }

    /// A session took its lock, which ends then. It stands in place of one that the session had.
    pub fn taken(&mut self, session: u64, until: u64) -> Result<(), Memory>
        ensures { OnOk result (self.new ≡ with_lease (record { session = session; until = until; asked = false }) self.old) }
    {
        self.given_back(session);
        let place = self.place(session);
        let taken = Lease {
            session,
            until,
            asked: false,
        };
        self.held.insert(place, taken)?;
        Ok(())
    }

    /// The agent was told that a session's lock was renewed: it ends then, and no renewal is under way.
    pub fn renewed(&mut self, session: u64, until: u64)
        ensures { self.new ≡ with_end session until self.old }
    {
        tell_end(&mut self.held, session, until);
    }

    /// The agent was told that a renewal was refused: the session's lock is not renewed again.
    pub fn lapsed(&mut self, session: u64)
        ensures { self.new ≡ without_lease session self.old }
    {
        self.held.retain(|lock| lock.session != session);
    }

    /// A session ended, and its lock with it.
    pub fn given_back(&mut self, session: u64)
        ensures { self.new ≡ without_lease session self.old }
    {
        self.held.retain(|held| held.session != session);
    }

    /// The least session above `after` whose lock is to be renewed now: it lives, it is in the last half of its life,
    /// and no renewal of it is under way. A whole life is `lease` long.
    pub fn due(&self, now: u64, lease: u64, after: u64) -> Option<u64>
        ensures first { result ≡ first_due now lease after self.now }
        ensures least { IfSome result (λ found. All (λ l. IsDueAfter now lease after l → found ≤ l.session) self.now) }
        ensures rising { IsRising self.now }
    {
        first_due(&self.held, now, lease, after)
    }

    /// A renewal of a session's lock was asked for. It is under way until the agent is told its answer.
    pub fn asked(&mut self, session: u64)
        ensures { self.new ≡ with_renewal session self.old }
    {
        mark_asked(&mut self.held, session);
    }
}
