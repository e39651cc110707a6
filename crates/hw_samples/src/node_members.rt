//! The members.

ghost use Rattle.hw_samples.specs.{Cluster.{ClusterIsReached}, Light.{YesMeetsAnother}, EraNodes.{EraNodesAreThere}, Files.{LogsAreInConflict, CertificatesAreInFiles}, Honest.{FirstIsFaulty}};

/// Three nodes are a cluster beside a validator that may be faulty, and two of them have the block that one made.
pub fn a_cluster_is_reached()
    ensures { ClusterIsReached }
{}

/// A certificate is answered yes, and another node decided another block of that height.
pub fn a_yes_meets_another_block()
    ensures { YesMeetsAnother }
{}

/// A node decided the last block of its era, and the next one is opened.
pub fn era_nodes_are_there()
    ensures { EraNodesAreThere }
{}

/// Two logs report conflicting final blocks, and the audit says so.
pub fn logs_are_in_conflict()
    ensures { LogsAreInConflict }
{}

/// A certificate is asked of a log, and another is checked by keys, against a log in conflict with it.
pub fn certificates_are_in_files()
    ensures { CertificatesAreInFiles }
{}

/// Validator 0 of three equivocates. Validators 1 and 2 lived, and weigh enough for agreement.
pub fn the_first_is_faulty()
    ensures { FirstIsFaulty }
{}
