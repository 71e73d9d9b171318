// Shelves whose labels are read under a plan.

// A shelf and the plan of its labels. Whoever asks what stands beside or below a label needs both.
#[derive(Drop)]
pub struct PlannedShelf<'a, P, S> {
    pub plan: &'a P,
    pub shelf: &'a S,
}
