//! The scheduler's limits, each in this one place: what one object may hold, what one pod may ask,
//! how much there may be of everything, and how far numbers count. They are the scheduler's own.
//! A row has a fixed size, all tables have their room from the start, and the sum over all placed
//! pods is below 2^62.

/// The most bytes of a name or a text: as many as a label's value may have (the Kubernetes page
/// "Labels and Selectors").
pub const MAX_NAME: usize = 63;

/// The most labels of a node or a pod.
pub const MAX_LABELS: usize = 32;

/// The most taints of a node.
pub const MAX_TAINTS: usize = 8;

/// The most tolerations of a pod.
pub const MAX_TOLERATIONS: usize = 16;

/// The most containers of a pod.
pub const MAX_CONTAINERS: usize = 16;

/// The most init containers of a pod.
pub const MAX_INIT_CONTAINERS: usize = 16;

/// The most CPU that one amount or one pod's request may be, 2^30 thousandths of a core.
pub const MAX_CPU: u64 = 1_073_741_824;

/// The most memory that one amount or one pod's request may be, 2^44 bytes.
pub const MAX_MEM: u64 = 17_592_186_044_416;

/// The most nodes.
pub const MAX_NODES: usize = 1_000;

/// The most pods with a place, and the most pods that one node may take.
pub const MAX_PLACED: usize = 150_000;

/// The most pods in the queue, those in flight and assumed included.
pub const MAX_QUEUED: usize = 10_000;

/// The most plugins of a site.
pub const MAX_PLUGINS: usize = 16;

/// The most that a plugin's score counts. The least is 1.
pub const MAX_WEIGHT: u8 = 10;

/// The most fuel of a plugin's call. The least is 1.
pub const MAX_FUEL: u64 = 1_000_000_000;

/// The most workers of a run. The least is 1.
pub const MAX_WORKERS: usize = 64;

/// The greatest version of a watch event. The least is 1.
pub const MAX_VERSION: u64 = 1_000_000_000_000_000_000;

/// The greatest ticket of an assumed place. The least is 1.
pub const MAX_TICKET: u64 = 1_000_000_000_000_000_000;

/// The latest moment of a clock, in milliseconds.
pub const LATEST_MOMENT: u64 = 1_000_000_000_000_000;
