//! The meaning of a plan: what a project requires, which versions follow from that, and what is
//! planned or refused.
//! Plain definitions over a setting, pages and an order on versions, with the laws that show that
//! they are right.
//! Each law is the contract of a function that does nothing.
#![tactic(auto)]

mod agreement;
mod choices;
mod closures;
mod computed;
mod edges;
mod facts;
mod faults;
mod features;
mod heights;
mod least;
mod meanings;
mod outcomes;
mod planned_sets;
mod planner;
mod plans;
mod printouts;
mod projects;
mod reasons;
mod roots;
mod selections;
mod sentences;
mod superseded;
mod walks;
mod worklists;

pub use agreement::only_what_was_asked_matters;
pub use choices::a_choice_is_the_least_version_allowed;
pub use closures::a_closure_is_one_or_has_too_many_facts;
pub use computed::what_is_computed_is_what_is_defined;
pub use edges::an_edge_is_a_dependency;
pub use facts::facts_come_in_order;
pub use faults::fault_lines_mean_what_they_say;
pub use features::asked_features_are_mentioned;
pub use heights::a_height_is_one_more_than_those_below;
pub use least::{
    a_derived_list_is_the_least, a_round_needs_the_fresh_facts_alone, an_order_is_one,
    there_is_one_least_list,
};
pub use meanings::{a_pinned_port_has_an_overlay_or_an_override, marks_hold_for_their_triplet};
pub use outcomes::{orders_are_total, there_is_one_outcome};
pub use planned_sets::a_planned_set_in_order_is_the_plan;
pub use planner::{a_plan_keeps_its_promises, a_project_has_one_report, the_premises_are_met};
pub use plans::{
    a_plan_serves_its_manifests, a_plan_stays_within_the_reasons,
    a_planned_version_is_the_least_allowed,
};
pub use printouts::{faults_are_printed, plans_are_printed, reports_are_printed};
pub use projects::{
    a_feature_of_one_version, a_project_with_every_cause, a_raised_minimum, a_realistic_project,
    bad_files, conflicts, cycles, default_features, host_instances, overlays, own_instances,
    reports_are_the_only_ones, superseded_versions,
};
pub use reasons::reasons_show_what_they_claim;
pub use roots::{the_root_is_asked_what_it_says, the_root_names_what_it_depends_on};
pub use selections::choices_are_made_or_conflicts_told;
pub use sentences::rules_mean_their_sentences;
pub use superseded::superseded_versions_count_and_go;
pub use walks::{heights_exist_where_no_cycle_is, one_shortest_cycle_is_told};
pub use worklists::{a_worklist_ends_in_the_least_list, a_worklist_of_reasons_ends_in_the_reasons};
