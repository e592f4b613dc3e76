//! What a line needs from the disk with its database.

use sqlite::{Alter, Connection};

/// What is left to do for a line.
pub(crate) enum Ask<S: Alter> {
    /// Nothing: the line is answered.
    Nothing,
    /// To open the database, and to continue with the connection.
    Connection,
    /// To close a database.
    Closing(Connection<S>),
    /// To take back the object in which an unused database was kept. Nothing has to be closed.
    GiveBack(S),
    /// To stop the machine and start it again, after which the object in which a store was kept can't be
    /// used.
    Crash(Option<S>),
}
