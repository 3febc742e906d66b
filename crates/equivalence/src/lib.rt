// When a second recording of a run is linearizable because the first is. All of it stands in specs/.
#![tactic(auto)]
