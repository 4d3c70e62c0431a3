/// The attributes that a caller asks for, with the fields of the kernel's `struct sched_attr` that
/// are read here (sched_setattr(2)). Size, nice value, priority and the utilisation clamps are not
/// read.
#[derive(Clone, Copy, Debug)]
pub struct SchedAttr {
    /// 6 for SCHED_DEADLINE; every other policy is refused.
    pub policy: u32,
    /// Bit 1 (reset on fork) and bit 4 (overrun) are accepted without effect; bit 2 asks for
    /// reclaiming.
    pub flags: u64,
    /// Worst-case runtime in a period, in nanoseconds.
    pub runtime: u64,
    /// Relative deadline, in nanoseconds.
    pub deadline: u64,
    /// Period, in nanoseconds; 0 means the deadline.
    pub period: u64,
}
