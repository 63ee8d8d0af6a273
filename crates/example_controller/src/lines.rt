// The two lines that the controller has.

// A connection: its number, and its ceiling, the size of the largest frame that it takes.
#[derive(Clone, Copy)]
pub(crate) struct Line {
    pub(crate) connection: u32,
    pub(crate) ceiling: u32,
}

// The gateway's ceiling is the largest that a connection can have.
pub(crate) const GATEWAY: Line = Line {
    connection: 1,
    ceiling: 65536,
};

pub(crate) const SENSOR: Line = Line {
    connection: 2,
    ceiling: 4096,
};

// The line with a connection's number. A job has the number of one of the two.
pub(crate) fn line_of(connection: u32) -> Line {
    if connection == SENSOR.connection {
        return SENSOR;
    }
    GATEWAY
}
