use thiserror::Error;

/// A call of the outside failed. It is answered only where the object's count of faults rose in
/// that call.
#[derive(Clone, Copy, Debug, PartialEq, Eq, Error)]
#[error("the outside failed")]
pub struct Failed;

/// A text was not wholly put. It is answered only where the sink's count of faults rose in that
/// call.
#[derive(Clone, Copy, Debug, PartialEq, Eq, Error)]
#[error("the sink failed")]
pub struct WriteFault;
