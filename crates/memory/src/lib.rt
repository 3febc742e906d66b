// The chain of linked records: holding, claiming, linking, retiring. All of it stands in specs/.
#![tactic(auto)]
