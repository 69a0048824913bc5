//! The commands of a script, with their operands as they were read.

/// A command of a script. Its operands are numbers and letters of any value, also where only some are lawful: what is
/// unlawful is refused when the command is performed, in the order of the refusals.
#[derive(Clone, Copy, PartialEq, Eq, Debug)]
pub enum Command {
    /// `L`: makes the group. Sites and partitions are counts, the others the letters of a clock rule and of a kind of
    /// mark.
    Layout {
        sites: u8,
        partitions: u8,
        clock: char,
        marks: char,
    },
    /// `S`: opens a session at a site.
    OpenSession {
        site: u8,
    },
    /// `T`: tells a server its reading of the physical time.
    Tell {
        site: u8,
        partition: u8,
        time: u64,
    },
    /// `P`: puts a value, given by its kind and its amount.
    Put {
        session: u8,
        key: u16,
        kind: u8,
        amount: u32,
    },
    /// `G`: shows the latest version of a key that the session may see.
    Get {
        session: u8,
        key: u16,
    },
    /// `H`: issues a stamp with no put.
    Heartbeat {
        site: u8,
        partition: u8,
    },
    /// `D`: hands the next entry of a partition from one site to another.
    Deliver {
        from: u8,
        to: u8,
        partition: u8,
    },
    /// `R`: a server reports to its site what it has received.
    Report {
        site: u8,
        partition: u8,
    },
    /// `U`: a server raises its stable mark to what all servers of its site have reported.
    Stabilise {
        site: u8,
        partition: u8,
    },
    /// `C`: drops the versions that nothing needs any more.
    Tidy {
        site: u8,
        partition: u8,
    },
    /// `Q`: asks how far a server's last stamp is ahead of its clock.
    Lead {
        site: u8,
        partition: u8,
    },
    /// `V`: opens a snapshot, reads two keys by it, and closes it.
    View {
        session: u8,
        partition: u8,
        first: u16,
        second: u16,
    },
}
